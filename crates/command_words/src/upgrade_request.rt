//! What is asked of a guest image that is written again.
/// A guest image to write in version 2. Both names may be of one file.
#[derive(Drop)]
pub struct UpgradeRequest<'a> {
    pub old_name: &'a str,
    pub new_name: &'a str,
}
