use app_peers::PeerList;
use policy_spec::Policies;
use resource_spec::Components;
use side_base::Text;
use topic_spec::Subs;

/// What a sidecar is configured as; it is fixed from the start.
#[derive(Drop)]
pub struct Config {
    /// The id of the app that the sidecar stands beside.
    pub app: Text,
    /// The port where the app takes calls; without one it takes none.
    pub app_port: Option<u16>,
    /// The other apps that may be called.
    pub peers: PeerList,
    /// The loaded components, in their order.
    pub components: Components,
    /// The subscriptions of the app, in their order; those of a sidecar without an app port are none.
    pub subs: Subs,
    /// What is bound to the calls of which target.
    pub policies: Policies,
}
