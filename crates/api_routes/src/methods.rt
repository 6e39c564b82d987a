ghost use Rattle.std.specs.Prelude.{◌≡◌, ◌++◌, length, take, OnOk, OnErr};
ghost use Rattle.api_routes.specs.Methods.{allow_text, has, method_name};

use side_base::{Blob, Method, NoMemory};

/// The methods that a set can have, in alphabetical order.
pub(crate) const METHODS: [Method; 7] = [
    Method::Delete,
    Method::Get,
    Method::Head,
    Method::Options,
    Method::Patch,
    Method::Post,
    Method::Put,
];

/// A set of request methods: one flag for each that a route can have. `Method::Other` is in no set.
#[derive(Clone, Copy, Debug, PartialEq, Eq)]
pub struct Methods {
    pub delete: bool,
    pub get: bool,
    pub head: bool,
    pub options: bool,
    pub patch: bool,
    pub post: bool,
    pub put: bool,
}

impl Methods {
    /// No method.
    pub const NONE: Methods = Methods {
        delete: false,
        get: false,
        head: false,
        options: false,
        patch: false,
        post: false,
        put: false,
    };

    /// Whether `method` is in the set.
    pub fn has(self, method: Method) -> bool
        ensures { result ≡ has self method }
    {
        match method {
            Method::Delete => self.delete,
            Method::Get => self.get,
            Method::Head => self.head,
            Method::Options => self.options,
            Method::Patch => self.patch,
            Method::Post => self.post,
            Method::Put => self.put,
            Method::Other => false,
        }
    }

    /// Appends the value of a field `Allow` to `out`: the names of the methods in the set, in alphabetical order, joined by a comma and a space (RFC 9110,
    /// section 10.2.1). Without memory `out` stays as it was.
    pub fn push_allow(self, out: &mut Blob) -> Result<(), NoMemory>
        ensures ok { OnOk result (out.new ≡ out.old ++ allow_text self) }
        ensures err { OnErr result (out.new ≡ out.old) }
    {
        let before = out.len();
        let pushed = push_names(self, out);
        if pushed.is_err() {
            out.truncate(before);
        }
        pushed
    }
}

/// The name of a method of a set (RFC 9110, section 9.1).
fn method_name(method: Method) -> &'static [u8]
    ensures { result.now ≡ method_name method }
{
    match method {
        Method::Delete => b"DELETE",
        Method::Get => b"GET",
        Method::Head => b"HEAD",
        Method::Options => b"OPTIONS",
        Method::Patch => b"PATCH",
        Method::Post => b"POST",
        Method::Put => b"PUT",
        Method::Other => b"",
    }
}

/// Appends the names of the methods in the set.
fn push_names(methods: Methods, out: &mut Blob) -> Result<(), NoMemory>
    ensures ok { OnOk result (out.new ≡ out.old ++ allow_text methods) }
    ensures err { OnErr result (take (length out.old) out.new ≡ out.old) }
{
    let mut separator: &[u8] = b"";
    for method in &METHODS {
        if methods.has(*method) {
            out.push(separator)?;
            out.push(method_name(*method))?;
            separator = b", ";
        }
    }
    Ok(())
}
