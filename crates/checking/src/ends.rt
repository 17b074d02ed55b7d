// What the walk through a tree gives where the tree is sound: its least and its greatest slot.
#[derive(Clone, Copy)]
pub struct Ends {
    pub first: u32,
    pub last: u32,
}
