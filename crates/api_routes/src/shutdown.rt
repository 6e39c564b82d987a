ghost use Rattle.std.specs.Prelude.{◌≡◌, ◌↔◌, true};
ghost use Rattle.api_routes.specs.Route.{Means};

use crate::Route;
use crate::table::SHUTDOWN_PATH;
use crate::target::path_of;
use side_base::Method;

/// Whether the route of a method and a request target is `Shutdown`; takes no memory.
pub fn is_shutdown(method: Method, target: &[u8]) -> bool
    ensures { (result ≡ true) ↔ Means method target.now Route.Shutdown }
{
    match method {
        Method::Post => path_of(target) == SHUTDOWN_PATH.as_bytes(),
        _ => false,
    }
}
