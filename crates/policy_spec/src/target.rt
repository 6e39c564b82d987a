use side_base::Text;

/// Whose calls something is bound to.
#[derive(Clone, Copy, Debug)]
pub enum Target<'a> {
    /// The calls of an app.
    App { id: &'a Text },
    /// What is sent to a component.
    Outbound { name: &'a Text },
    /// What comes from a component.
    Inbound { name: &'a Text },
}
