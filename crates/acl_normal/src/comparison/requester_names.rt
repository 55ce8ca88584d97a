//! The names of the requester of a difference.
ghost use Rattle.std.specs.Prelude.{◌≡◌, ◌<◌, ◌≤◌, All, length};

/// The names of the requester of a difference, borrowed from the difference, from which a `Requester` is made.
#[derive(Clone, Copy, Debug)]
pub struct RequesterNames<'a> {
    pub(crate) user: &'a [u8],
    /// The names of the groups. If there are fewer than two, the name of the user fills the rest.
    pub(crate) names: [&'a [u8]; 2],
    /// How many of the names are names of groups.
    pub(crate) count: usize,
    ghost user_named: { 0 < length user.now },
    ghost groups_named: { All (λ g. 0 < length g.now) names },
    ghost two: { length names ≡ 2 },
    ghost few: { count ≤ 2 },
}
