/// What of a table is kept beside its bytes: where its class table and its forward codes begin, and how many states and classes
/// there are.
#[derive(Clone, Copy)]
pub struct Layout {
    pub class_place: usize,
    pub code_start: usize,
    pub state_total: usize,
    pub class_total: usize,
}
