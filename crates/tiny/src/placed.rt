// A value with the place in the source that it belongs to, a byte offset: a token, or the cause of
// a refusal.
#[derive(Clone, Copy, PartialEq, Eq, Debug)]
pub struct Placed<K> {
    pub what: K,
    pub place: usize,
}
