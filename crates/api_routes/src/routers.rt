ghost use Rattle.std.specs.Prelude.{◌≡◌, ◌≢◌, ◌⊎◌, ◌↔◌, true, Ok, Err, ℕ, List, IfOk, OnOk, IfSome, IfNone, Some, slice_get};
ghost use Rattle.side_base.specs.declared.method.Method.{Method as MethodRecord};
ghost use Rattle.api_routes.specs.Methods.{has};
ghost use Rattle.api_routes.specs.Path.{IsClean};
ghost use Rattle.api_routes.specs.declared.methods.Methods.{Methods as MethodsRecord};
ghost use Rattle.api_routes.specs.declared.route.Route.{Route as RouteRecord};
ghost use Rattle.api_routes.specs.Route.{HasBadByte, HasParameter, HasRoute, IsBroken, IsNotAllowed, IsNotFound, IsRowOf, Means, Refuses};
ghost use Rattle.api_routes.specs.Routers.{Adds, AllServe, AreFitting, AreRows, IsFree, IsRead, Serves};
ghost use Rattle.api_routes.specs.Table.{RouteRow, table};

use crate::methods::METHODS;
use crate::parameters::route_of;
use crate::table::{Kind, Row, routes};
use crate::target::{bad_place, path_of};
use crate::{Methods, NoMemory, Route, RouteErr};
use matchit::{InsertError, Router};
use percent_encoding::ascii_str;
use side_base::Method;
use std::alloc::Global;
use std::marker::Model;

/// The routers of the interface: one for each method that a route can have.
#[derive(Drop)]
pub struct Routers {
    // In the order of `METHODS`.
    routers: Vec<Router<Kind>>,
}

impl Model for Routers {
    ghost use Rattle.api_routes.specs.Routers.{AllServe};
    ghost use Rattle.api_routes.specs.Table.{table};
    ghost use Rattle.api_routes.specs.declared.methods.TheConstants.{METHODS};

    ghost Value = { Unit {0} };

    ghost view = { λ _. tt };

    ghost invariant = { λ r. AllServe table METHODS r.routers.items };
}

/// Adds a row to a router.
fn add(router: &mut Router<Kind>, row: &Row) -> Result<(), NoMemory>
    requires { IsFree row.now router.old }
    ensures { (pattern : List ℕ) → IsRead row.now.path.now pattern → OnOk result (Adds pattern row.now.kind router.old router.new) }
{
    match router.insert(row.path, row.kind) {
        Ok(()) => Ok(()),
        Err(InsertError::OutOfMemory) => Err(NoMemory),
        Err(_) => unreachable!(),
    }
}

/// The router of a method, with those of the rows that have it.
fn router_of(alloc: Global, method: Method, rows: &[Row]) -> Result<Router<Kind>, NoMemory>
    requires { AreFitting method rows.now }
    ensures { (defined : List RouteRow) → AreRows rows.now defined → IfOk result (Serves defined method) }
{
    let mut router = Router::new(alloc);
    for row in rows {
        if row.methods.has(method) {
            add(&mut router, row)?;
        }
    }
    Ok(router)
}

/// The routers of the methods, in their order.
fn routers_of(
    alloc: Global,
    methods: &[Method],
    rows: &[Row],
) -> Result<Vec<Router<Kind>>, NoMemory>
    requires { (method : MethodRecord) → AreFitting method rows.now }
    ensures { (defined : List RouteRow) → AreRows rows.now defined → IfOk result (λ all. AllServe defined methods.now all.items) }
{
    let mut all = Vec::with_capacity(alloc, methods.len())?;
    for method in methods {
        all.push(router_of(alloc, *method, rows)?)?;
    }
    Ok(all)
}

/// The place of a method in `METHODS`.
fn place_of(method: Method) -> Option<usize>
    ensures some { IfSome result (λ at. slice_get METHODS at ≡ Some method) }
    ensures none { IfNone result (method ≡ Method.Other) }
{
    match method {
        Method::Delete => Some(0),
        Method::Get => Some(1),
        Method::Head => Some(2),
        Method::Options => Some(3),
        Method::Patch => Some(4),
        Method::Post => Some(5),
        Method::Put => Some(6),
        Method::Other => None,
    }
}

impl Routers {
    /// The routers, made from the table of routes.
    pub fn new(alloc: Global) -> Result<Self, NoMemory> {
        Ok(Routers {
            routers: routers_of(alloc, &METHODS, routes())?,
        })
    }

    /// The router of a method.
    fn router(&self, method: Method) -> Option<&Router<Kind>>
        ensures some { IfSome result (λ router. Serves table method router.now) }
        ensures none { IfNone result (method ≡ Method.Other) }
    {
        let at = place_of(method)?;
        Some(&self.routers[at])
    }

    /// What the method does with the path.
    fn kind_of(&self, method: Method, path: &[u8]) -> Option<Kind>
        requires { IsClean path.now }
        ensures some { IfSome result (λ kind. (row : RouteRow) × (values : List (List ℕ)) × IsRowOf method path.now row values × (row.kind ≡ kind)) }
        ensures none { IfNone result (¬ HasRoute path.now method) }
    {
        let router = self.router(method)?;
        match router.at(ascii_str(path)) {
            Ok(found) => Some(*found.value),
            Err(_) => None,
        }
    }

    /// Whether the method has a route for the path.
    fn has_route(&self, method: Method, path: &[u8]) -> bool
        requires { IsClean path.now }
        ensures { (result ≡ true) ↔ HasRoute path.now method }
    {
        self.kind_of(method, path).is_some()
    }

    /// The methods that have a route for the path.
    fn methods_of(&self, path: &[u8]) -> Methods
        requires { IsClean path.now }
        ensures { (method : MethodRecord) → (has result method ≡ true) ↔ HasRoute path.now method }
    {
        Methods {
            delete: self.has_route(Method::Delete, path),
            get: self.has_route(Method::Get, path),
            head: self.has_route(Method::Head, path),
            options: self.has_route(Method::Options, path),
            patch: self.has_route(Method::Patch, path),
            post: self.has_route(Method::Post, path),
            put: self.has_route(Method::Put, path),
        }
    }

    /// Why a method that has no route for the path has none.
    fn refusal(&self, path: &[u8]) -> RouteErr
        requires { IsClean path.now }
        ensures { Refuses path.now result }
    {
        let allow = self.methods_of(path);
        if allow == Methods::NONE {
            RouteErr::NotFound
        } else {
            RouteErr::MethodNotAllowed { allow }
        }
    }

    /// The route of a method and a request target. A literal segment of a route is compared with the segment as it was
    /// sent, and a parameter is decoded.
    ///
    /// Of the errors the first decides: a byte before the query that no target has or a `%` that begins no escape, then
    /// `NotFound`, then `MethodNotAllowed`, then a parameter that is not UTF-8.
    pub fn route(&self, alloc: Global, method: Method, target: &[u8]) -> Result<Route, RouteErr>
        ensures ok { (route : RouteRecord) → (result ≡ Ok route) ↔ (Means method target.now route × (result ≢ Err RouteErr.NoMemory)) }
        ensures not_found { (result ≡ Err RouteErr.NotFound) ↔ IsNotFound target.now }
        ensures not_allowed { (allow : MethodsRecord) → (result ≡ Err (RouteErr.MethodNotAllowed allow)) ↔ IsNotAllowed method target.now allow }
        ensures bad_byte { (at : ℕ) → HasBadByte target.now at → result ≡ Err (RouteErr.BadEscape at) }
        ensures bad_escape { (at : ℕ) → (result ≡ Err (RouteErr.BadEscape at)) ↔ (HasBadByte target.now at ⊎ (IsBroken method target.now at × (result ≢ Err RouteErr.NoMemory))) }
        ensures memory { result ≡ Err RouteErr.NoMemory → HasParameter method target.now }
    {
        let path = path_of(target);
        if let Some(at) = bad_place(path) {
            return Err(RouteErr::BadEscape { at });
        }
        match self.kind_of(method, path) {
            Some(kind) => route_of(alloc, kind, target, path),
            None => Err(self.refusal(path)),
        }
    }
}
