// Millivolts in the caller's bytes: four each, in two's complement, high byte first.
ghost use Rattle.std.specs.Prelude.{◌≡◌, [], ◌∷◌, ◌*◌, ◌≤◌, length};
ghost use Rattle.frames.specs.Put.{put};
ghost use Rattle.layout.specs.Cells.{cell_bytes, has_room, stored_in};

pub fn has_room(n: usize, bytes: usize) -> bool
    ensures { result ≡ has_room n bytes }
{
    n <= 15 && 4 * n <= bytes
}

// All numbers, over the list's first bytes, where there is room.
pub fn put_cells(millivolts: &[i32], list: &mut [u8])
    ensures { list.new ≡ stored_in (length millivolts.now) millivolts.now list.old }
{
    if has_room(millivolts.len(), list.len()) {
        put_numbers(millivolts, list);
    }
}

fn put_numbers(millivolts: &[i32], list: &mut [u8])
    requires { 4 * length millivolts.now ≤ length list.old }
    ensures { list.new ≡ put list.old 0 (cell_bytes millivolts.now) }
{
    for (i, &mv) in millivolts.iter().enumerate() {
        crate::put4(list, 4 * i, numbers::as_u32(mv));
    }
}

pub fn put_three(first: i32, second: i32, third: i32, bytes: &mut [u8; 12])
    ensures { bytes.new ≡ cell_bytes (first ∷ second ∷ third ∷ []) }
{
    put_numbers(&[first, second, third], bytes);
}
