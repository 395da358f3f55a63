//! What is counted since the process began. No count goes over the greatest number.
ghost use Rattle.std.specs.Prelude.{◌≡◌};
ghost use Rattle.sv_site.specs.Counting.{more, counted};

use sv_wire::Reply;

#[derive(Clone, Copy, Debug, Default, Drop, PartialEq, Eq)]
pub struct Counts {
    pub dropped: u64,
    pub denied: u64,
    pub reported_by_steward: u64,
    pub bytes_in: u64,
    pub bytes_out: u64,
    pub refused_connections: u64,
}

impl Counts {
    pub fn came(&mut self, count: usize)
        ensures { self.new ≡ record self.old { bytes_in = more self.old.bytes_in count } }
    {
        self.bytes_in = self.bytes_in.saturating_add(count as u64);
    }

    pub fn went(&mut self, count: usize)
        ensures { self.new ≡ record self.old { bytes_out = more self.old.bytes_out count } }
    {
        self.bytes_out = self.bytes_out.saturating_add(count as u64);
    }

    pub fn refuse(&mut self)
        ensures { self.new ≡ record self.old { refused_connections = more self.old.refused_connections 1 } }
    {
        self.refused_connections = self.refused_connections.saturating_add(1);
    }

    /// Counts a reply by which an action has its outcome.
    pub fn answer(&mut self, reply: &Reply)
        ensures { self.new ≡ counted self.old reply.now }
    {
        match reply {
            Reply::Dropped { .. } => self.dropped = self.dropped.saturating_add(1),
            Reply::Denied { .. } => self.denied = self.denied.saturating_add(1),
            _ => {}
        }
    }
}
