// Walls in three lists.
ghost use Rattle.std.specs.Prelude.{◌≡◌, length};

// Lines, starts and ends at an index: their list, or walls of ours.
#[derive(Clone, Copy, Drop)]
pub struct Entries<'a> {
    pub lines: &'a [u32],
    pub starts: &'a [i32],
    pub ends: &'a [i32],
    pub ghost starts_long: { length starts.now ≡ length lines.now },
    pub ghost ends_long: { length ends.now ≡ length lines.now },
}
