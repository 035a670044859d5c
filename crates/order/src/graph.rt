// The gates of a graph, with a mark and a place for each.
ghost use Rattle.std.specs.Prelude.{◌*◌, ◌≤◌, ◌≡◌, length};

#[derive(Drop)]
pub(crate) struct Gates<'a> {
    // two numbers for each gate: the gates that define its operands
    pub(crate) uses: &'a [u16],
    pub(crate) marks: &'a mut [u8],
    pub(crate) order: &'a mut [u16],
    ghost pairs: { 2 * length marks.now ≤ length uses.now },
    ghost small: { length marks.now ≤ 65535 },
    ghost long: { length order.now ≡ length marks.now },
}
