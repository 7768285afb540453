//! The line of a server that can serve.
use server::Announcer;
use std::io::Write;

/// Where a server listens, to be printed once it can serve.
#[derive(Drop)]
pub struct Announcement<'w, 'a, O> {
    pub writer: &'w mut O,
    pub address: &'a str,
}

impl<O: Write> Announcer for Announcement<'_, '_, O> {
    ghost use Rattle.std.specs.Prelude.{◌≡◌, true};
    ghost use Rattle.std.specs.Io.KnownBytes.{Appends};
    ghost use Rattle.nfsd.specs.Lines.{listening_line};

    ghost tells = { λ before is_announced after. (after.writer.ghost_name ≡ before.writer.ghost_name)
        × (is_announced ≡ true → Appends (O.contents before.writer.now) (O.contents after.writer.now)
        (listening_line before.address.now)) };

    fn announce(self) -> (Self, bool) {
        let Announcement { writer, address } = self;
        let is_announced = writeln!(writer, "listening {address}").is_ok();
        (Announcement { writer, address }, is_announced)
    }
}
