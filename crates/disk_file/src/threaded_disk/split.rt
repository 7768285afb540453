//! A device over a file, cut into what its threads use.
ghost use Rattle.std.specs.Prelude.{◌≡◌, All, IfOk, [], length};
ghost use Rattle.std.specs.Arc.{arc_value};
ghost use Rattle.disk.specs.declared.block.Side.TheVariants.{Home, Log};

use super::ThreadedDisk;
use crate::BlockFile;
use crate::file::ports::{FilePort, FileSource};
use disk::{Side, Splits};
use std::alloc::{AllocError, Global};
use std::sync::Arc;

/// The file stays open, and locked, until the last of what it was cut into is dropped.
impl<F: BlockFile> Splits<FilePort<F>, FileSource<F>> for ThreadedDisk<F> {
    ghost size = { λ d. d.blocks };

    fn split(
        self,
        alloc: Global,
        workers: usize,
    ) -> Result<(FilePort<F>, FilePort<F>, Vec<FileSource<F>>), AllocError> {
        cut(self, alloc, workers)
    }
}

// The log side, by the opening that was locked, the home side, by the other one, and so many sources.
fn cut<F: BlockFile>(
    disk: ThreadedDisk<F>,
    alloc: Global,
    workers: usize,
) -> Result<(FilePort<F>, FilePort<F>, Vec<FileSource<F>>), AllocError>
    ensures openings { IfOk result (λ parts. (arc_value parts.0.file ≡ disk.file.file)
        × (arc_value parts.1.file ≡ disk.home)) }
    ensures log { IfOk result (λ parts. (parts.0.side ≡ Log) × (parts.0.blocks ≡ disk.blocks)
        × (parts.0.traced.items ≡ [])) }
    ensures home { IfOk result (λ parts. (parts.1.side ≡ Home) × (parts.1.blocks ≡ disk.blocks)
        × (parts.1.traced.items ≡ [])) }
    ensures count { IfOk result (λ parts. length parts.2.items ≡ workers) }
    ensures sources { IfOk result (λ parts. All
        (λ source. (source.blocks ≡ disk.blocks) × (source.traced.items ≡ [])) parts.2.items) }
{
    let ThreadedDisk {
        file,
        home,
        blocks,
        first: _,
    } = disk;
    let file = file.shared(alloc)?;
    let log = FilePort::new(alloc, Arc::try_clone(&file)?, blocks, Side::Log)?;
    let home = FilePort::new(alloc, Arc::new(alloc, home)?, blocks, Side::Home)?;
    let sources = sources_of(alloc, &file, blocks, workers)?;
    Ok((log, home, sources))
}

// So many sources of a shared file.
fn sources_of<F: BlockFile>(
    alloc: Global,
    file: &Arc<F, Global>,
    blocks: u32,
    count: usize,
) -> Result<Vec<FileSource<F>>, AllocError>
    ensures count { IfOk result (λ sources. length sources.items ≡ count) }
    ensures fresh { IfOk result (λ sources. All (λ source. (source.blocks ≡ blocks)
        × (source.traced.items ≡ [])) sources.items) }
{
    let mut sources = Vec::with_capacity(alloc, count)?;
    for _made in 0..count {
        sources.push(FileSource::new(Arc::try_clone(file)?, blocks))?;
    }
    Ok(sources)
}
