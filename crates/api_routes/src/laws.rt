//! Laws about routes, as functions whose contracts state them.

ghost use Rattle.std.specs.Prelude.{◌≡◌, ℕ, List};
ghost use Rattle.side_base.specs.declared.method.Method.{Method as MethodRecord};
ghost use Rattle.api_routes.specs.declared.route.Route.{Route as RouteRecord};
ghost use Rattle.api_routes.specs.Route.{Fits, Means};
ghost use Rattle.api_routes.specs.Table.{RouteRow};

/// A path has at most one route for a method: one row of the table fits, with one list of values for its parameters. So a
/// method and a target mean at most one thing.
pub fn a_path_has_one_route()
    ensures row { (method : MethodRecord) (path : List ℕ) (row other : RouteRow) (values others : List (List ℕ)) → Fits method path row values → Fits method path other others → other ≡ row }
    ensures values { (method : MethodRecord) (path : List ℕ) (row other : RouteRow) (values others : List (List ℕ)) → Fits method path row values → Fits method path other others → others ≡ values }
    ensures meaning { (method : MethodRecord) (target : List ℕ) (route other : RouteRecord) → Means method target route → Means method target other → route ≡ other }
{}
