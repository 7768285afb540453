//! What a thread is to be told of and has not taken yet.
ghost use Rattle.std.specs.Prelude.{◌≡◌, ◌↔◌, ◌&&◌, true, false, not};

/// What a thread is told that has work now and then.
#[derive(Clone, Copy, Debug, PartialEq, Eq)]
pub enum Notice {
    /// There is work.
    Work,
    /// There is work that can't wait.
    Now,
    /// There is none, and none will come.
    End,
}

/// What a thread is to be told of and has not taken yet: work, and work that can't wait. The end stays, once it is noted.
#[derive(Drop)]
pub struct Pending {
    work: bool,
    urgent: bool,
    end: bool,
}

impl Pending {
    /// Nothing.
    pub fn new() -> Pending
        ensures { result ≡ record { work = false; urgent = false; end = false } }
    {
        Pending {
            work: false,
            urgent: false,
            end: false,
        }
    }

    /// Notes work. Whether that is news.
    pub fn notify(&mut self) -> bool
        ensures news { result ≡ not self.old.work }
        ensures set { self.new ≡ record self.old { work = true } }
    {
        let is_news = !self.work;
        self.work = true;
        is_news
    }

    /// Notes work that can't wait. Whether that is news.
    pub fn notify_now(&mut self) -> bool
        ensures news { result ≡ not self.old.urgent }
        ensures set { self.new ≡ record self.old { urgent = true } }
    {
        let is_news = !self.urgent;
        self.urgent = true;
        is_news
    }

    /// Notes that no work will come any more.
    pub fn end(&mut self)
        ensures { self.new ≡ record self.old { end = true } }
    {
        self.end = true;
    }

    /// Whether there is nothing to take.
    pub fn is_empty(&self) -> bool
        ensures { result ≡ (not self.now.work && not self.now.urgent && not self.now.end) }
    {
        !self.work && !self.urgent && !self.end
    }

    /// Whether there is nothing to take that can't wait.
    pub fn can_wait(&self) -> bool
        ensures { result ≡ (not self.now.urgent && not self.now.end) }
    {
        !self.urgent && !self.end
    }

    /// Takes what was noted: first what can't wait, and the end only where no work is. Where nothing was noted, that is
    /// work.
    pub fn take(&mut self) -> Notice
        ensures now { (result ≡ Notice.Now) ↔ (self.old.urgent ≡ true) }
        ensures end { (result ≡ Notice.End)
            ↔ ((self.old.urgent ≡ false) × (self.old.work ≡ false) × (self.old.end ≡ true)) }
        ensures taken { self.new ≡ record self.old { work = false; urgent = false } }
    {
        let notice = if self.urgent {
            Notice::Now
        } else if self.work || !self.end {
            Notice::Work
        } else {
            Notice::End
        };
        self.work = false;
        self.urgent = false;
        notice
    }
}
