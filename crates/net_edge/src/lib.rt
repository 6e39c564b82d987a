//! The door at which connections wait for workers, the link by which they call other programs, and the outside of a program on its host,
//! over sockets of std and what the system has beside them. They tell no content.
#![tactic(auto)]

mod begun_request;
mod call_connection;
mod call_stream;
mod call_time;
mod connection;
mod door;
mod door_limits;
mod entrance;
mod holders;
mod host_outside;
mod kept_connections;
mod other_work;
mod pace;
mod parting;
mod places;
mod ready_set;
mod request_at_hand;
mod start_numbers;
mod tcp_acceptor;
mod tcp_door;
mod tcp_link;
mod tcp_sink;
mod tcp_source;
mod waiting;

pub use door_limits::DoorLimits;
pub use host_outside::{Host, HostOutside};
pub use tcp_acceptor::TcpAcceptor;
pub use tcp_door::TcpDoor;
pub use tcp_link::TcpLink;
pub use tcp_sink::TcpSink;
pub use tcp_source::TcpSource;
