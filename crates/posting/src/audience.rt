// An enum and no closure, since definitions cite it.
// To whom a message goes: to all, or to those whose highest request equals the view.
#[derive(Clone, Copy, PartialEq, Eq, Debug)]
pub enum Audience {
    All,
    Joined(u32),
}
