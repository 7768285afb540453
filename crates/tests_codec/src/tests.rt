//! There and back: each call and each reply is written as its words, and what is read of them is written as them again.
//! No two of a procedure are written alike, so what was read is what was written.

use bytes::Bytes;
use nfs_client_codec::{decode_reply, encode_call};
use nfs_codec::decode_call;
use nfs_results::{encode_into, encode_reply, put_mount_reply, reply_len};
use nfs_types::{ProgramCall, ProgramProcedure, ProgramReply, Reply};
use std::alloc::{AllocError, Global};
use std::test::Fail;
use tests_vectors::procedures::*;
use xdr::Writer;

// The bytes of words, the highest byte of each first.
fn spelled(alloc: Global, parts: &[&[u32]]) -> Result<Vec<u8>, AllocError> {
    let mut bytes = Vec::new(alloc);
    for part in parts {
        for word in *part {
            bytes.extend_from_slice(&word.to_be_bytes())?;
        }
    }
    Ok(bytes)
}

fn are_arguments(alloc: Global, call: &ProgramCall, bytes: &[u8]) -> bool {
    match encode_call(Writer::new(alloc), call) {
        Ok(out) => out.as_slice() == bytes,
        Err(_) => false,
    }
}

fn is_call(
    alloc: Global,
    procedure: ProgramProcedure,
    call: ProgramCall,
    words: &[&[u32]],
) -> Result<bool, AllocError> {
    let bytes = Bytes::from_vec(spelled(alloc, words)?)?;
    let is_written = are_arguments(alloc, &call, bytes.as_slice());
    drop(call);
    let is_read = match decode_call(alloc, procedure, &bytes, 0) {
        Ok(read) => {
            let is_same = are_arguments(alloc, &read, bytes.as_slice());
            drop(read);
            is_same
        }
        Err(_) => false,
    };
    Ok(is_written && is_read)
}

fn is_result(alloc: Global, reply: &ProgramReply, bytes: &[u8]) -> bool {
    match reply {
        ProgramReply::Nfs(reply) => match encode_reply(alloc, reply) {
            Ok(out) => out.as_slice() == bytes && is_counted(alloc, reply, bytes),
            Err(_) => false,
        },
        ProgramReply::Mount(reply) => {
            let mut out = Writer::new(alloc);
            match put_mount_reply(&mut out, reply) {
                Ok(()) => out.as_slice() == bytes,
                Err(_) => false,
            }
        }
    }
}

// The length of a reply is known before it is written, and then it is written without further memory.
fn is_counted(alloc: Global, reply: &Reply, bytes: &[u8]) -> bool {
    let Some(length) = reply_len(alloc, reply) else {
        return false;
    };
    let Ok(room) = Vec::with_capacity(alloc, length) else {
        return false;
    };
    if length == usize::MAX {
        return false;
    }
    let mut out = Writer::behind(room);
    encode_into(reply, &mut out);
    length == bytes.len() && out.as_slice() == bytes
}

fn is_reply(
    alloc: Global,
    procedure: ProgramProcedure,
    reply: ProgramReply,
    words: &[&[u32]],
) -> Result<bool, AllocError> {
    let bytes = spelled(alloc, words)?;
    let is_written = is_result(alloc, &reply, bytes.as_slice());
    drop(reply);
    let is_read = match decode_reply(alloc, procedure, bytes.as_slice()) {
        Ok(read) => {
            let is_same = is_result(alloc, &read, bytes.as_slice());
            drop(read);
            is_same
        }
        Err(_) => false,
    };
    Ok(is_written && is_read)
}

#[test]
fn calls_there_and_back(rt: HostRuntime) -> Result<(), Fail> {
    let alloc = rt.alloc();
    for (procedure, asked, words) in &CALLS {
        let call = ProgramCall::Nfs(call(alloc, asked)?);
        let asked = ProgramProcedure::Nfs(*procedure);
        assert!(rt; is_call(alloc, asked, call, words)?, "{procedure:?}");
    }
    for (procedure, words) in &MOUNT_CALLS {
        let call = ProgramCall::Mount(mount_call(alloc, *procedure)?);
        let asked = ProgramProcedure::Mount(*procedure);
        assert!(rt; is_call(alloc, asked, call, words)?, "{procedure:?}");
    }
    Ok(())
}

#[test]
fn replies_there_and_back(rt: HostRuntime) -> Result<(), Fail> {
    let alloc = rt.alloc();
    for (procedure, words) in &RESULTS {
        let reply = ProgramReply::Nfs(reply(alloc, *procedure)?);
        let asked = ProgramProcedure::Nfs(*procedure);
        assert!(rt; is_reply(alloc, asked, reply, words)?, "{procedure:?}");
    }
    for (procedure, words) in &MOUNT_RESULTS {
        let reply = ProgramReply::Mount(mount_reply(alloc, *procedure)?);
        let asked = ProgramProcedure::Mount(*procedure);
        assert!(rt; is_reply(alloc, asked, reply, words)?, "{procedure:?}");
    }
    Ok(())
}
