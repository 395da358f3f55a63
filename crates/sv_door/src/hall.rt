//! Where clients in memory wait for their server.

use std::alloc::{AllocError, Global};
use std::collections::VecDeque;
use std::sync::{Arc, Condvar, Mutex, Wait};
use sv_link::{Pipe, Side};

/// The connections that clients made and no server has taken yet, in order.
#[derive(Drop)]
pub(crate) struct Hall {
    waiting: Mutex<VecDeque<Arc<Pipe, Global>>>,
    came: Condvar,
}

impl Hall {
    pub(crate) fn new(alloc: Global) -> Hall {
        Hall {
            waiting: Mutex::new(VecDeque::new(alloc)),
            came: Condvar::new(),
        }
    }

    /// The connection of a new end: a server waits for one and takes it, and a client brings one.
    pub(crate) fn enter<R: Wait>(
        &self,
        alloc: Global,
        rt: &R,
        side: Side,
    ) -> Result<Arc<Pipe, Global>, AllocError> {
        match side {
            Side::Server => Ok(self.take(rt)),
            Side::Client => {
                let pipe = Arc::new(alloc, Pipe::new(alloc))?;
                self.put(rt, Arc::try_clone(&pipe)?)?;
                Ok(pipe)
            }
        }
    }

    // Puts a client's connection behind those that wait. Without memory it is dropped.
    fn put<R: Wait>(&self, rt: &R, pipe: Arc<Pipe, Global>) -> Result<(), AllocError> {
        self.waiting.lock(rt).push_back(pipe)?;
        self.came.notify_all();
        Ok(())
    }

    // Waits for a connection, and takes the first one.
    fn take<R: Wait>(&self, rt: &R) -> Arc<Pipe, Global> {
        let mut waiting = self
            .came
            .wait_while(rt, self.waiting.lock(rt), |waiting| waiting.is_empty());
        waiting.pop_front().unwrap()
    }
}
