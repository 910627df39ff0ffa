// The numbered lists of a scope, each named by its scope.

#[derive(Clone, Copy, PartialEq, Eq, Debug)]
pub struct Nodes(pub usize);

#[derive(Clone, Copy, PartialEq, Eq, Debug)]
pub struct Edges(pub usize);

#[derive(Clone, Copy, PartialEq, Eq, Debug)]
pub struct Facts(pub usize);
