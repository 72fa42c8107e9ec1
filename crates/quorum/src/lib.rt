// Station certificates (document 01, "Certificates"; profiles: document 02, [7]): the paper, and what is proved of it. No code but the
// reader of a pile of receipts.
#![tactic(auto)]

mod receipts;

pub use receipts::receipts_in;

// What a certificate that stands names: the place of the first good receipt whose pair is certified, and the members that show the
// pair, one bit each.
#[derive(Clone, Copy)]
pub struct Certified {
    pub place: usize,
    pub mask: u32,
}
