// How a run goes on after an instruction.

// At the next instruction in order, at another one, or not at all.
#[derive(Clone, Copy, PartialEq, Eq, Debug)]
pub enum Flow {
    Next,
    To(u32),
    Stop,
}
