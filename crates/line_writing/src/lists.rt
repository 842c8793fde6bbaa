// The lists that walls are put into.

// Lines, starts, ends, and the shapes there, at a wall's index. Whose lists they are is the caller's.
#[derive(Drop)]
pub struct WallLists<'a> {
    pub lines: &'a mut [u32],
    pub starts: &'a mut [i32],
    pub ends: &'a mut [i32],
    pub start_shapes: &'a mut [u16],
    pub end_shapes: &'a mut [u16],
}
