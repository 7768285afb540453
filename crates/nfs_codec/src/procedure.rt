//! The procedures of both programs, by their numbers.
ghost use Rattle.std.specs.Prelude.{◌≡◌};
ghost use Rattle.nfs_codec.specs.Procedures as numbers;

use nfs_types::{MountProcedure, Procedure, Program, ProgramProcedure};

/// The procedure of a program and a number, or None where none has it.
pub fn procedure_of(program: Program, number: u32) -> Option<ProgramProcedure>
    ensures { result ≡ numbers.procedure_of program number }
{
    match program {
        Program::Nfs => match nfs_procedure(number) {
            Some(procedure) => Some(ProgramProcedure::Nfs(procedure)),
            None => None,
        },
        Program::Mount => match mount_procedure(number) {
            Some(procedure) => Some(ProgramProcedure::Mount(procedure)),
            None => None,
        },
    }
}

fn nfs_procedure(number: u32) -> Option<Procedure>
    ensures { result ≡ numbers.nfs_procedure number }
{
    match number {
        0 => Some(Procedure::Null),
        1 => Some(Procedure::GetAttr),
        2 => Some(Procedure::SetAttr),
        3 => Some(Procedure::Lookup),
        4 => Some(Procedure::Access),
        5 => Some(Procedure::ReadLink),
        6 => Some(Procedure::Read),
        7 => Some(Procedure::Write),
        8 => Some(Procedure::Create),
        9 => Some(Procedure::MkDir),
        10 => Some(Procedure::SymLink),
        11 => Some(Procedure::MkNod),
        12 => Some(Procedure::Remove),
        13 => Some(Procedure::RmDir),
        14 => Some(Procedure::Rename),
        15 => Some(Procedure::Link),
        16 => Some(Procedure::ReadDir),
        17 => Some(Procedure::ReadDirPlus),
        18 => Some(Procedure::FsStat),
        19 => Some(Procedure::FsInfo),
        20 => Some(Procedure::PathConf),
        21 => Some(Procedure::Commit),
        _ => None,
    }
}

fn mount_procedure(number: u32) -> Option<MountProcedure>
    ensures { result ≡ numbers.mount_procedure number }
{
    match number {
        0 => Some(MountProcedure::Null),
        1 => Some(MountProcedure::Mount),
        3 => Some(MountProcedure::Unmount),
        _ => None,
    }
}
