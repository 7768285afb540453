//! The worked reply to each procedure, as a value.

use crate::procedures::asked::handle_of;
use crate::procedures::values::{ATTRIBUTES, BEFORE, FILE, VERIFIER};
use nfs_types::{
    Created, FileSystemInfo, FileSystemSpace, Listed, ListedEntries, ListedEntriesPlus, ListedItem,
    ListedItemPlus, ListedPlus, LookupResult, Moment, MountProcedure, MountReply, Mounted,
    NumberList, Octets, PathLimits, Pieces, Procedure, ReadBytes, Reply, Stability, Status,
    WeakCacheData, Written,
};
use std::alloc::{AllocError, Global};

// A file before and behind a change, before it alone, behind it alone, and neither.
const CHANGED: WeakCacheData = WeakCacheData {
    before: Some(BEFORE),
    after: Some(ATTRIBUTES),
};

const WAS: WeakCacheData = WeakCacheData {
    before: Some(BEFORE),
    after: None,
};

const BECAME: WeakCacheData = WeakCacheData {
    before: None,
    after: Some(ATTRIBUTES),
};

const UNTOLD: WeakCacheData = WeakCacheData {
    before: None,
    after: None,
};

const WRITTEN: Written = Written {
    count: 5,
    committed: Stability::DataSync,
    verifier: VERIFIER,
};

const SPACE: FileSystemSpace = FileSystemSpace {
    total_bytes: 8_589_935_592,
    free_bytes: 4_294_968_196,
    available_bytes: 800,
    total_files: 70,
    free_files: 60,
    available_files: 50,
    unchanged_seconds: 40,
};

const INFO: FileSystemInfo = FileSystemInfo {
    read_max: 60,
    read_preferred: 50,
    read_multiple: 40,
    write_max: 30,
    write_preferred: 20,
    write_multiple: 10,
    directory_preferred: 5,
    largest_file: 4_294_967_304,
    time_delta: Moment {
        seconds: 0,
        nanoseconds: 1000,
    },
    properties: 27,
};

const LIMITS: PathLimits = PathLimits {
    links: 32_000,
    name_bytes: 255,
    no_truncation: true,
    chown_restricted: false,
    case_insensitive: false,
    case_preserving: true,
};

fn entries(alloc: Global) -> Result<ListedEntries, AllocError> {
    let mut entries = Vec::new(alloc);
    entries.push(ListedItem {
        number: 9,
        name: Octets::copied(alloc, b"file")?,
        cookie: 4,
    })?;
    entries.push(ListedItem {
        number: 10,
        name: Octets::copied(alloc, b"new")?,
        cookie: 5,
    })?;
    Ok(ListedEntries::new(entries))
}

fn full_entry(alloc: Global) -> Result<ListedItemPlus, AllocError> {
    let handle = handle_of(alloc, FILE)?;
    Ok(ListedItemPlus {
        number: 9,
        name: Octets::copied(alloc, b"file")?,
        cookie: 4,
        attributes: Some(ATTRIBUTES),
        handle: Some(handle),
    })
}

fn bare_entry(alloc: Global) -> Result<ListedItemPlus, AllocError> {
    Ok(ListedItemPlus {
        number: 10,
        name: Octets::copied(alloc, b"new")?,
        cookie: 5,
        attributes: None,
        handle: None,
    })
}

fn entries_plus(alloc: Global) -> Result<ListedEntriesPlus, AllocError> {
    let mut entries = Vec::new(alloc);
    entries.push(full_entry(alloc)?)?;
    entries.push(bare_entry(alloc)?)?;
    Ok(ListedEntriesPlus::new(entries))
}

fn flavors(alloc: Global) -> Result<NumberList, AllocError> {
    let mut flavors = Vec::new(alloc);
    flavors.push(1)?;
    flavors.push(6)?;
    Ok(NumberList::new(flavors))
}

fn lookup(alloc: Global) -> Result<Reply, AllocError> {
    let lookup_result = LookupResult {
        object: handle_of(alloc, FILE)?,
        attributes: Some(ATTRIBUTES),
    };
    Ok(Reply::Lookup {
        outcome: Ok(lookup_result),
        directory: None,
    })
}

fn read_link(alloc: Global) -> Result<Reply, AllocError> {
    let target = Octets::copied(alloc, b"a/b")?;
    Ok(Reply::ReadLink {
        outcome: Ok(target),
        link: None,
    })
}

fn read(alloc: Global) -> Result<Reply, AllocError> {
    let read = ReadBytes {
        count: 5,
        eof: true,
        bytes: Pieces::copied(alloc, b"hello")?,
    };
    Ok(Reply::Read {
        outcome: Ok(read),
        file: None,
    })
}

fn create(alloc: Global) -> Result<Reply, AllocError> {
    let created = Created {
        object: Some(handle_of(alloc, FILE)?),
        attributes: Some(ATTRIBUTES),
    };
    Ok(Reply::Create {
        outcome: Ok(created),
        directory: BECAME,
    })
}

fn sym_link(alloc: Global) -> Result<Reply, AllocError> {
    let created = Created {
        object: None,
        attributes: None,
    };
    Ok(Reply::SymLink {
        outcome: Ok(created),
        directory: CHANGED,
    })
}

fn read_dir(alloc: Global) -> Result<Reply, AllocError> {
    let listed = Listed {
        verifier: VERIFIER,
        entries: entries(alloc)?,
        eof: true,
    };
    Ok(Reply::ReadDir {
        outcome: Ok(listed),
        directory: None,
    })
}

fn read_dir_plus(alloc: Global) -> Result<Reply, AllocError> {
    let listed = ListedPlus {
        verifier: VERIFIER,
        entries: entries_plus(alloc)?,
        eof: false,
    };
    Ok(Reply::ReadDirPlus {
        outcome: Ok(listed),
        directory: Some(ATTRIBUTES),
    })
}

fn mount(alloc: Global) -> Result<MountReply, AllocError> {
    let mounted = Mounted {
        root: handle_of(alloc, FILE)?,
        flavors: flavors(alloc)?,
    };
    Ok(MountReply::Mount {
        outcome: Ok(mounted),
    })
}

/// The reply of NFS whose result `RESULTS` has.
pub fn reply(alloc: Global, procedure: Procedure) -> Result<Reply, AllocError> {
    match procedure {
        Procedure::Null => Ok(Reply::Null),
        Procedure::GetAttr => Ok(Reply::GetAttr {
            outcome: Ok(ATTRIBUTES),
        }),
        Procedure::SetAttr => Ok(Reply::SetAttr {
            outcome: Err(Status::NotSync),
            object: WAS,
        }),
        Procedure::Lookup => lookup(alloc),
        Procedure::Access => Ok(Reply::Access {
            outcome: Ok(31),
            object: Some(ATTRIBUTES),
        }),
        Procedure::ReadLink => read_link(alloc),
        Procedure::Read => read(alloc),
        Procedure::Write => Ok(Reply::Write {
            outcome: Ok(WRITTEN),
            file: CHANGED,
        }),
        Procedure::Create => create(alloc),
        Procedure::MkDir => Ok(Reply::MkDir {
            outcome: Err(Status::Exist),
            directory: UNTOLD,
        }),
        Procedure::SymLink => sym_link(alloc),
        Procedure::MkNod => Ok(Reply::MkNod {
            outcome: Err(Status::NotSupp),
            directory: UNTOLD,
        }),
        Procedure::Remove => Ok(Reply::Remove {
            outcome: Ok(()),
            directory: CHANGED,
        }),
        Procedure::RmDir => Ok(Reply::RmDir {
            outcome: Err(Status::NotEmpty),
            directory: WAS,
        }),
        Procedure::Rename => Ok(Reply::Rename {
            outcome: Ok(()),
            source: WAS,
            target: BECAME,
        }),
        Procedure::Link => Ok(Reply::Link {
            outcome: Err(Status::MLink),
            file: Some(ATTRIBUTES),
            directory: UNTOLD,
        }),
        Procedure::ReadDir => read_dir(alloc),
        Procedure::ReadDirPlus => read_dir_plus(alloc),
        Procedure::FsStat => Ok(Reply::FsStat {
            outcome: Ok(SPACE),
            object: None,
        }),
        Procedure::FsInfo => Ok(Reply::FsInfo {
            outcome: Ok(INFO),
            object: None,
        }),
        Procedure::PathConf => Ok(Reply::PathConf {
            outcome: Ok(LIMITS),
            object: None,
        }),
        Procedure::Commit => Ok(Reply::Commit {
            outcome: Ok(VERIFIER),
            file: UNTOLD,
        }),
    }
}

/// That of MOUNT.
pub fn mount_reply(alloc: Global, procedure: MountProcedure) -> Result<MountReply, AllocError> {
    match procedure {
        MountProcedure::Null => Ok(MountReply::Null),
        MountProcedure::Mount => mount(alloc),
        MountProcedure::Unmount => Ok(MountReply::Unmount),
    }
}
