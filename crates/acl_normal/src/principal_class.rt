//! The two classes of principals.
ghost use Rattle.std.specs.Prelude.{◌≡◌};
ghost use Rattle.acl_normal.specs.Common.{is_user, is_users, principal};

use acl_perm::Principal;

/// The class of a principal. Two different users never overlap; a principal of the other class overlaps with every
/// principal.
#[derive(Clone, Copy)]
pub enum Class {
    /// A user by name.
    Users,
    /// The owner, the owning group, a group by name, or everyone.
    Others,
}

impl Class {
    /// Only a user by name is of the class of users: the owner is of the other class, although a user is the owner.
    pub(crate) fn of(p: Principal<'_>) -> Class
        ensures { is_users result ≡ is_user (principal p.entry) }
    {
        if p.is_user() {
            Class::Users
        } else {
            Class::Others
        }
    }

    pub(crate) fn of_users(users: bool) -> Class
        ensures { is_users result ≡ users }
    {
        if users { Class::Users } else { Class::Others }
    }

    /// Returns whether it is the class of users.
    pub fn is_users(self) -> bool
        ensures { result ≡ is_users self }
    {
        match self {
            Class::Users => true,
            Class::Others => false,
        }
    }
}
