//! Scripts: what is asked of a bench in turn, and what each row comes to.

use crate::tests::bench::{Bench, Ended, Seen, Step};
use crate::tests::fake_changes::{At, change_of};
use crate::tests::whole::claim_and_write_many;
use disk::CrashDisk;
use std::mem::replace;
use txn::{FetchIo, Tx};
use wal::Seq;

// A row of a script.
#[derive(Clone, Copy)]
pub enum Row {
    // One of three transactions does this.
    First(Act),
    Second(Act),
    Third(Act),
    // The first wants an object, and its fetch is handed out.
    FetchesOut(At),
    // That fetch fails.
    FetchFails,
    // A transaction of its own claims so many home blocks from one on, and writes them whole.
    WritesMany(u32, u8, Ended),
    // So many transactions after each other change the same 8 bytes, each by one, and are the next places from the first.
    Raises(At, u8),
    // The logger makes so many calls, and has no more.
    Logs(u16),
    // The same of the installer.
    Installs(u16),
    // Whether the commit at a place is settled.
    IsSettled(u64, bool),
    // How many blocks wait to be logged, and how many commits aren't home.
    Has(usize, usize),
}

// What a transaction does, and what that comes to.
#[derive(Clone, Copy)]
pub enum Act {
    // It begins, and has this number.
    Begins(u64),
    Takes(Step, Seen),
    // It ends with a change that read these objects, each with its byte, and writes these so.
    Commits(&'static [(At, u8)], &'static [(At, u8)], Ended),
    Aborts,
}

// What is out in the midst of a script.
struct Out {
    first: Option<Tx>,
    second: Option<Tx>,
    third: Option<Tx>,
    io: Option<FetchIo>,
}

impl<D: CrashDisk> Bench<D> {
    // The first row that comes to something else, if there is one. None is tried behind it.
    pub fn first_wrong(&mut self, rows: &[Row]) -> Option<usize> {
        let mut out = Out {
            first: None,
            second: None,
            third: None,
            io: None,
        };
        let mut wrong = None;
        'rows: for (row_index, row) in rows.iter().enumerate() {
            if wrong.is_none() && !self.comes_to(&mut out, *row) {
                wrong = Some(row_index);
            }
        }
        self.end_all(out);
        wrong
    }

    fn comes_to(&mut self, out: &mut Out, row: Row) -> bool {
        match row {
            Row::First(act) => self.act(&mut out.first, act),
            Row::Second(act) => self.act(&mut out.second, act),
            Row::Third(act) => self.act(&mut out.third, act),
            Row::FetchesOut(at) => self.fetches_out(out, at),
            Row::FetchFails => {
                let io = replace(&mut out.io, None);
                self.give_back(io)
            }
            Row::WritesMany(first, count, ended) => self.writes_many(first, count, ended),
            Row::Raises(at, count) => self.raises(at, count),
            Row::Logs(calls) => self.log_all() == calls,
            Row::Installs(calls) => self.install_all() == calls,
            Row::IsSettled(place, is_settled) => {
                self.core.stable(Seq(place)).is_some() == is_settled
            }
            Row::Has(tail, kept) => self.core.tail() == tail && self.core.kept() == kept,
        }
    }

    fn writes_many(&mut self, first: u32, count: u8, wanted: Ended) -> bool {
        claim_and_write_many(self, first, count) == Some(wanted)
    }

    fn raises(&mut self, at: At, count: u8) -> bool {
        let mut are_next = true;
        'changes: for byte in 0..count {
            let place = Ended::Place(Seq(u64::from(byte) + 1));
            are_next = are_next && self.changes(at, byte, byte.saturating_add(1), place);
        }
        are_next
    }

    // Whether a change of 8 bytes from one byte to another comes to this, where it has read them.
    pub fn changes(&mut self, at: At, was: u8, byte: u8, wanted: Ended) -> bool {
        match change_of(self.alloc, &[(at, was)], &[(at, byte)]) {
            Some(toy) => self.commit(&[Step::Read(at)], toy) == wanted,
            None => false,
        }
    }
}

// The transactions of a script.
impl<D: CrashDisk> Bench<D> {
    // Who isn't out can only begin.
    fn act(&mut self, slot: &mut Option<Tx>, act: Act) -> bool {
        match replace(slot, None) {
            Some(tx) => self.act_out(slot, tx, act),
            None => match act {
                Act::Begins(number) => self.begins(slot, number),
                _ => false,
            },
        }
    }

    fn begins(&mut self, slot: &mut Option<Tx>, number: u64) -> bool {
        let Some(tx) = self.begin() else {
            return false;
        };
        let is_so = tx.number() == number;
        self.put(slot, tx);
        is_so
    }

    fn act_out(&mut self, slot: &mut Option<Tx>, tx: Tx, act: Act) -> bool {
        match act {
            Act::Begins(_) => {
                self.put(slot, tx);
                false
            }
            Act::Takes(step, wanted) => {
                let (tx, seen) = self.take(tx, step);
                self.put(slot, tx);
                seen == wanted
            }
            Act::Commits(read, written, wanted) => self.commits(tx, read, written, wanted),
            Act::Aborts => {
                self.core.abort(tx);
                true
            }
        }
    }

    fn commits(&mut self, tx: Tx, read: &[(At, u8)], written: &[(At, u8)], wanted: Ended) -> bool {
        match change_of(self.alloc, read, written) {
            Some(toy) => self.end(tx, toy) == wanted,
            None => {
                self.core.abort(tx);
                false
            }
        }
    }

    fn fetches_out(&mut self, out: &mut Out, at: At) -> bool {
        let Some(tx) = replace(&mut out.first, None) else {
            return false;
        };
        let (tx, io) = self.fetch_out(tx, at);
        self.put(&mut out.first, tx);
        let is_out = io.is_some();
        let before = replace(&mut out.io, io);
        self.give_back(before);
        is_out
    }

    fn put(&mut self, slot: &mut Option<Tx>, tx: Tx) {
        let before = replace(slot, Some(tx));
        self.abort_one(before);
    }

    fn abort_one(&mut self, tx: Option<Tx>) {
        match tx {
            Some(tx) => self.core.abort(tx),
            None => {}
        }
    }

    fn end_all(&mut self, out: Out) {
        let Out {
            first,
            second,
            third,
            io,
        } = out;
        self.give_back(io);
        self.abort_one(first);
        self.abort_one(second);
        self.abort_one(third);
    }
}
