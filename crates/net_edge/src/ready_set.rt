use crate::waiting::has_bytes;
use libc::EINTR;
use libc::net::{
    EFD_CLOEXEC, EFD_NONBLOCK, EPOLL_CLOEXEC, EPOLL_CTL_ADD, EPOLL_CTL_MOD, EPOLLET, EPOLLIN,
    EPOLLONESHOT, EPOLLRDHUP, epoll_create1, eventfd,
};
use os::{EpollEvent, FromRawFd, epoll_ctl, epoll_wait, errno};
use std::io;
use std::os::fd::{AsRawFd, OwnedFd, RawFd};

/// When a descriptor is reported, to one of those that wait.
#[derive(Clone, Copy)]
pub(crate) enum When {
    /// Once something can be read, and not again until it is armed again.
    Once,
    /// Each time that something more comes, and where something can be read when it is armed.
    More,
    /// Only where its connection fails.
    Never,
}

/// What a set reports.
#[derive(Clone, Copy)]
pub(crate) struct Report {
    /// The number of the descriptor.
    pub(crate) number: u64,
    /// Its peer sends no more, or the connection has failed.
    pub(crate) has_ended: bool,
}

/// The system's set of descriptors of which something is to be read.
#[derive(Drop)]
pub(crate) struct ReadySet {
    set: OwnedFd,
}

impl ReadySet {
    /// An empty set.
    pub(crate) fn new() -> io::Result<Self> {
        Ok(ReadySet {
            set: owned(epoll_create1(EPOLL_CLOEXEC))?,
        })
    }

    /// Adds a descriptor, which is reported by this number.
    pub(crate) fn add(&self, fd: RawFd, number: u64, when: When) -> io::Result<()> {
        self.control(EPOLL_CTL_ADD, fd, number, when)
    }

    /// Has a descriptor of the set reported so from now on, by this number.
    pub(crate) fn arm(&self, fd: RawFd, number: u64, when: When) -> io::Result<()> {
        self.control(EPOLL_CTL_MOD, fd, number, when)
    }

    fn control(&self, how: i32, fd: RawFd, number: u64, when: When) -> io::Result<()> {
        let events = match when {
            When::Once => EPOLLIN | EPOLLRDHUP | EPOLLONESHOT,
            When::More => EPOLLIN | EPOLLRDHUP | EPOLLET,
            When::Never => EPOLLONESHOT,
        };
        if epoll_ctl(self.set.as_raw_fd(), how, fd, events, number) < 0 {
            return Err(last_error());
        }
        Ok(())
    }

    /// Whether one is ready that was not reported yet.
    pub(crate) fn has_ready(&self) -> bool {
        has_bytes(self.set.as_raw_fd())
    }

    /// A report; `None` where there was none within the milliseconds.
    pub(crate) fn wait(&self, ms: i32) -> io::Result<Option<Report>> {
        let mut found = [EpollEvent { events: 0, data: 0 }];
        if epoll_wait(self.set.as_raw_fd(), &mut found, ms) > 0 {
            return Ok(Some(Report {
                number: found[0].data,
                has_ended: found[0].events & !EPOLLIN != 0,
            }));
        }
        match errno() {
            0 | EINTR => Ok(None),
            error => Err(io::Error::from_raw_os_error(error)),
        }
    }
}

/// A counter of the system's that is ready once it was rung, until it is hushed.
#[derive(Drop)]
pub(crate) struct Bell {
    counter: OwnedFd,
}

impl Bell {
    /// A bell that wasn't rung.
    pub(crate) fn new() -> io::Result<Self> {
        Ok(Bell {
            counter: owned(eventfd(0, EFD_CLOEXEC | EFD_NONBLOCK))?,
        })
    }

    /// Its descriptor.
    pub(crate) fn fd(&self) -> RawFd {
        self.counter.as_raw_fd()
    }

    /// Makes it ready. A counter that is full is ready already.
    pub(crate) fn ring(&self) {
        libc::write(self.fd(), &1u64.to_ne_bytes());
    }

    /// It is no longer ready.
    pub(crate) fn hush(&self) {
        libc::read(self.fd(), &mut [0u8; 8]);
    }
}

/// The owner of a descriptor that the system has just made, or the error of the call.
fn owned(fd: RawFd) -> io::Result<OwnedFd> {
    if fd < 0 {
        return Err(last_error());
    }
    Ok(unsafe { OwnedFd::from_raw_fd(fd) })
}

fn last_error() -> io::Error {
    io::Error::from_raw_os_error(errno())
}
