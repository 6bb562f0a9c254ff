// A part as it is offered.
#[derive(Clone, Copy)]
pub struct Part<'a> {
    // 0 for a kind without a total.
    pub total: u32,
    // The part's cells, or the characters of a line of givens.
    pub body: &'a [u8],
}
