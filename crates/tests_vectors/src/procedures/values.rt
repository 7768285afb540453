//! What the parts of arguments and results mean, as values.

use crate::procedures::asked::File;
use nfs_types::{
    Attributes, DeviceNumber, FileKind, Moment, NewAttributes, SetTime, Verifier,
    WeakCacheAttributes,
};

/// The file of the first handle.
pub const FILE: File = File(9, 0x0102_0304, 0x0506_0708);

/// That of the other.
pub const OTHER: File = File(10, 4_294_967_296, 4_294_967_296);

/// Attributes that are set, some by values and one by the server's time.
pub const SET: NewAttributes = NewAttributes {
    mode: Some(420),
    uid: Some(1000),
    gid: None,
    size: Some(4096),
    atime: SetTime::Server,
    mtime: SetTime::Client(Moment {
        seconds: 2000,
        nanoseconds: 5,
    }),
};

/// None that are set.
pub const UNSET: NewAttributes = NewAttributes {
    mode: None,
    uid: None,
    gid: None,
    size: None,
    atime: SetTime::Unchanged,
    mtime: SetTime::Unchanged,
};

/// A time of change that is asked for.
pub const GUARD: Moment = Moment {
    seconds: 1000,
    nanoseconds: 7,
};

/// A verifier.
pub const VERIFIER: Verifier = Verifier {
    bytes: [0x11, 0x12, 0x13, 0x14, 0x15, 0x16, 0x17, 0x18],
};

/// The numbers of a device.
pub const DEVICE: DeviceNumber = DeviceNumber {
    major: 11,
    minor: 12,
};

/// What is told of the file.
pub const ATTRIBUTES: Attributes = Attributes {
    kind: FileKind::Regular,
    mode: 420,
    nlink: 2,
    uid: 1000,
    gid: 100,
    size: 5,
    used: 4096,
    device: DEVICE,
    file_system: 7,
    number: 9,
    atime: Moment {
        seconds: 100,
        nanoseconds: 1,
    },
    mtime: Moment {
        seconds: 200,
        nanoseconds: 2,
    },
    ctime: Moment {
        seconds: 300,
        nanoseconds: 3,
    },
};

/// What is told of it before a change.
pub const BEFORE: WeakCacheAttributes = WeakCacheAttributes {
    size: 4_294_967_300,
    mtime: Moment {
        seconds: 150,
        nanoseconds: 15,
    },
    ctime: Moment {
        seconds: 250,
        nanoseconds: 25,
    },
};
