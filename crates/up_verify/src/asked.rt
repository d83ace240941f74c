//! What a file is asked, and what it says of itself.
use up_canon::ident::Ident;
use up_canon::moment::Moment;
use up_roles::repository::Repository;

/// Whose files are checked, and when: the repository, the vehicle that its files name, and the moment in seconds.
#[derive(Drop)]
pub struct Asked {
    pub repository: Repository,
    pub vehicle: Option<Ident>,
    pub moment: u64,
}

/// What a file says of itself.
#[derive(Clone, Copy)]
pub(crate) struct Says<'a> {
    pub(crate) repository: Repository,
    pub(crate) vehicle: &'a Option<Ident>,
    pub(crate) version: u64,
    pub(crate) expires: Moment,
}
