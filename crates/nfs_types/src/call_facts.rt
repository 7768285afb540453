//! What is known of a call before it is served (RFC 1813, section 3.3): one table, with a row for each call.
ghost use Rattle.std.specs.Prelude.{◌≡◌, true, false, Some, None, IfNone, IfSome};
ghost use Rattle.nfs_types.specs.CallFacts.{facts, is_unstable};

use crate::{Call, DirectoryName, Handle, Stability};

/// What is known of a call before it is served.
#[derive(Drop)]
pub struct CallFacts<'a> {
    /// The handle that is looked at first, if the call has one.
    pub handle: Option<&'a Handle>,
    /// The first name, with its directory.
    pub name: Option<&'a DirectoryName>,
    /// The second name, which RENAME alone has.
    pub second_name: Option<&'a DirectoryName>,
    /// Whether the call changes files.
    pub changes: bool,
    /// Whether it is answered, with refusals too, only once what it changed is stable (RFC 1813, section 4.8).
    pub is_stable: bool,
    /// Whether it begins a transaction: each does but NULL, which does nothing.
    pub begins_transaction: bool,
}

fn is_unstable(stability: Stability) -> bool
    ensures { result ≡ is_unstable stability }
{
    matches!(stability, Stability::Unstable)
}

// The row of NULL.
fn row_of_null<'a>() -> CallFacts<'a>
    ensures { result ≡ record {
      handle = None;
      name = None;
      second_name = None;
      changes = false;
      is_stable = false;
      begins_transaction = false;
    } }
{
    CallFacts {
        handle: None,
        name: None,
        second_name: None,
        changes: false,
        is_stable: false,
        begins_transaction: false,
    }
}

// The row of a call that begins a transaction, in the order of the columns.
fn row<'a>(
    handle: &'a Handle,
    name: Option<&'a DirectoryName>,
    second_name: Option<&'a DirectoryName>,
    changes: bool,
    is_stable: bool,
) -> CallFacts<'a>
    ensures { result ≡ record {
      handle = Some handle.entry;
      name = name.entry;
      second_name = second_name.entry;
      changes = changes;
      is_stable = is_stable;
      begins_transaction = true;
    } }
{
    CallFacts {
        handle: Some(handle),
        name,
        second_name,
        changes,
        is_stable,
        begins_transaction: true,
    }
}

impl Call {
    /// What is known of the call: its row of the table. MKNOD makes nothing.
    pub fn facts(&self) -> CallFacts<'_>
        ensures handle { IfSome result.handle (λ handle. (facts self.now).handle ≡ Some handle.now) }
        ensures no_handle { IfNone result.handle ((facts self.now).handle ≡ None) }
        ensures name { IfSome result.name (λ name. (facts self.now).name ≡ Some name.now) }
        ensures no_name { IfNone result.name ((facts self.now).name ≡ None) }
        ensures second_name { IfSome result.second_name (λ name. (facts self.now).second_name ≡ Some name.now) }
        ensures no_second_name { IfNone result.second_name ((facts self.now).second_name ≡ None) }
        ensures changes { result.changes ≡ (facts self.now).changes }
        ensures is_stable { result.is_stable ≡ (facts self.now).is_stable }
        ensures begins_transaction { result.begins_transaction ≡ (facts self.now).begins_transaction }
    {
        match self {
            Call::Null => row_of_null(),
            Call::GetAttr { object } => row(object, None, None, false, false),
            Call::SetAttr { object, .. } => row(object, None, None, true, true),
            Call::Lookup { name } => row(&name.directory, Some(name), None, false, false),
            Call::Access { object, .. } => row(object, None, None, false, false),
            Call::ReadLink { link } => row(link, None, None, false, false),
            Call::Read { file, .. } => row(file, None, None, false, false),
            Call::Write {
                file,
                stability,
                ..
            } => row(file, None, None, true, !is_unstable(*stability)),
            Call::Create { name, .. } => row(&name.directory, Some(name), None, true, true),
            Call::MkDir { name, .. } => row(&name.directory, Some(name), None, true, true),
            Call::SymLink { name, .. } => row(&name.directory, Some(name), None, true, true),
            Call::MkNod { name, .. } => row(&name.directory, Some(name), None, false, true),
            Call::Remove { name } => row(&name.directory, Some(name), None, true, true),
            Call::RmDir { name } => row(&name.directory, Some(name), None, true, true),
            Call::Rename { source, target } => {
                row(&source.directory, Some(source), Some(target), true, true)
            }
            Call::Link { file, name } => row(file, Some(name), None, true, true),
            Call::ReadDir { directory, .. } => row(directory, None, None, false, false),
            Call::ReadDirPlus { directory, .. } => row(directory, None, None, false, false),
            Call::FsStat { object } => row(object, None, None, false, false),
            Call::FsInfo { object } => row(object, None, None, false, false),
            Call::PathConf { object } => row(object, None, None, false, false),
            Call::Commit { file, .. } => row(file, None, None, false, true),
        }
    }
}
