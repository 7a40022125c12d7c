//! The routes of the office, and the request of a method, a path and a body.

ghost use Rattle.std.specs.Prelude.{◌≡◌, IfOk, option_map, IsAscii, IsTrue};
ghost use Rattle.permit_base.specs.Limits.{only_if};
ghost use Rattle.permit_routes.specs.Outcome.{RoutesAs};
ghost use Rattle.permit_routes.specs.Routes.{post_rows, get_rows};
ghost use Rattle.permit_routes.specs.Routing.{are_ascii, are_ascii_rows, request_among, request_of};

use crate::fault::RequestFault;
use crate::requests::{Endpoint, request_with};
use http::Method;
use matchit::{InsertError, Router};
use permit_base::request::Request;
use std::alloc::Global;

fn post_router(alloc: Global) -> Result<Router<Endpoint>, InsertError>
    ensures { IfOk result (λ r. r ≡ post_rows) }
{
    let mut router = Router::new(alloc);
    router.insert("/parties", Endpoint::Parties)?;
    router.insert("/parcels", Endpoint::Parcels)?;
    router.insert("/parcels/{id}/{action}", Endpoint::ParcelAction)?;
    router.insert("/files", Endpoint::Files)?;
    router.insert("/files/{id}/{action}", Endpoint::FileAction)?;
    Ok(router)
}

fn get_router(alloc: Global) -> Result<Router<Endpoint>, InsertError>
    ensures { IfOk result (λ r. r ≡ get_rows) }
{
    let mut router = Router::new(alloc);
    router.insert("/parcels/{id}", Endpoint::Parcel)?;
    router.insert("/files", Endpoint::Listing)?;
    router.insert("/files/stage/{stage}", Endpoint::StageListing)?;
    router.insert("/files/{id}", Endpoint::File)?;
    router.insert("/registers/{name}", Endpoint::Register)?;
    Ok(router)
}

/// The request of an ASCII path and a body among the routes of a router.
fn request_among(
    alloc: Global,
    router: &Router<Endpoint>,
    path: &str,
    body: &[u8],
) -> Result<Request, RequestFault>
    requires rows { IsTrue (are_ascii_rows router.now) }
    requires path { IsAscii path.now }
    ensures { RoutesAs result (request_among router.now path.now body.now) }
{
    match router.at(path) {
        Ok(found) => request_with(alloc, *found.value, &found.params, body),
        Err(_) => Err(RequestFault::Route),
    }
}

fn are_ascii(bytes: &[u8]) -> bool
    ensures { result ≡ are_ascii bytes.now }
{
    bytes.iter().all(|b| *b < 128)
}

/// The text of a path, where it is ASCII.
fn ascii(path: &[u8]) -> Option<&str>
    ensures { option_map (λ s. s.now) result ≡ only_if are_ascii path.now }
{
    if !are_ascii(path) {
        return None;
    }
    match str::from_utf8(path) {
        Ok(text) => Some(text),
        Err(_) => None,
    }
}

/// The routes of each method, which are made when the first request of that method is routed, and kept.
#[derive(Drop)]
pub struct Routes {
    alloc: Global,
    post: Option<Router<Endpoint>>,
    get: Option<Router<Endpoint>>,
    ghost posts: { post ≡ option_map (λ _. post_rows) post },
    ghost gets: { get ≡ option_map (λ _. get_rows) get },
}

impl Routes {
    /// Routes that are still to be made; it takes no memory.
    pub fn new(alloc: Global) -> Routes {
        Routes {
            alloc,
            post: None,
            get: None,
        }
    }

    /// What memory is taken from.
    pub fn allocator(&self) -> Global {
        self.alloc
    }

    /// The request of an ASCII path and a body among the routes of POST.
    fn post_request(&mut self, path: &str, body: &[u8]) -> Result<Request, RequestFault>
        requires { IsAscii path.now }
        ensures { RoutesAs result (request_among post_rows path.now body.now) }
    {
        if let Some(router) = &self.post {
            return request_among(self.alloc, router, path, body);
        }
        let Ok(router) = post_router(self.alloc) else {
            return Err(RequestFault::Memory);
        };
        let request = request_among(self.alloc, &router, path, body);
        self.post = Some(router);
        request
    }

    /// The request of an ASCII path and a body among the routes of GET.
    fn get_request(&mut self, path: &str, body: &[u8]) -> Result<Request, RequestFault>
        requires { IsAscii path.now }
        ensures { RoutesAs result (request_among get_rows path.now body.now) }
    {
        if let Some(router) = &self.get {
            return request_among(self.alloc, router, path, body);
        }
        let Ok(router) = get_router(self.alloc) else {
            return Err(RequestFault::Memory);
        };
        let request = request_among(self.alloc, &router, path, body);
        self.get = Some(router);
        request
    }

    /// The request of a method, a path and a body, by what `matchit` finds among the routes of the method and what
    /// `serde_json` reads the body as. That there is no route is reported before what is wrong with the body.
    ///
    /// The path is compared byte by byte, and has no query. The number of a parcel or a file is 1 to 99999 without leading
    /// zeros, an action or a register is one of its words, and a stage one that a file can be in; another number or word
    /// has no route, nor has a path with a byte that is not ASCII.
    ///
    /// The body is an object with exactly the keys of its request; an empty body counts as `{}`. A request that only reads
    /// has no body. Where a key occurs twice, its last value counts.
    ///
    /// Memory is taken for the request's texts, and for the routes of its method where they aren't made yet.
    ///
    /// # Examples
    ///
    /// ```
    /// let mut routes = Routes::new(alloc);
    /// let request = routes.request(b"POST", b"/parcels/2/transfer", b"{\"to\":5}");
    /// assert!(rt; matches!(request, Ok(Request::Transfer { .. })));
    /// let request = routes.request(b"GET", b"/files/0", b"");
    /// assert!(rt; matches!(request, Err(RequestFault::Route)));
    /// ```
    pub fn request(
        &mut self,
        method: &[u8],
        path: &[u8],
        body: &[u8],
    ) -> Result<Request, RequestFault>
        ensures { RoutesAs result (request_of method.now path.now body.now) }
    {
        let Some(path) = ascii(path) else {
            return Err(RequestFault::Route);
        };
        if method == Method::POST.as_str().as_bytes() {
            self.post_request(path, body)
        } else if method == Method::GET.as_str().as_bytes() {
            self.get_request(path, body)
        } else {
            Err(RequestFault::Route)
        }
    }
}
