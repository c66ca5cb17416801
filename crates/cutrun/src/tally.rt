// How many calls were made after a cut, and how many of them ended as if nothing had been cut before them.

#[derive(Default, Drop)]
pub(crate) struct Tally {
    pub tried: u64,
    pub same: u64,
}

impl Tally {
    pub(crate) fn count(&mut self, same: bool) {
        self.tried = self.tried.wrapping_add(1);
        self.same = self.same.wrapping_add(same as u64);
    }
}
