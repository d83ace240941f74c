//! The two repositories.

/// A repository of the Uptane Standard.
#[derive(Clone, Copy, Debug)]
pub enum Repository {
    /// It directs which image each ECU installs, vehicle by vehicle.
    Director,
    /// It holds metadata about all images.
    Image,
}
