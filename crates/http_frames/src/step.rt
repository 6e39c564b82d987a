use side_base::Request;

/// What the bytes that were fed to a framer hold next.
#[derive(Debug, Drop)]
pub enum Step {
    /// A whole request.
    Request(Request),
    /// The head of a request that asks for `100 Continue` before its content is sent. It is given once, before that
    /// request, whether or not its content has come.
    Continue,
    /// Nothing further, as long as no bytes are fed.
    Need,
}
