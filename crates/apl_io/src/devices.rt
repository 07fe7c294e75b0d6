/// What a run is lent: a text store, a clock, and a shelf for each user.
#[derive(Debug, Drop)]
pub struct Devices<T, C, K> {
    pub text: T,
    pub clock: C,
    pub shelves: Vec<K>,
}
