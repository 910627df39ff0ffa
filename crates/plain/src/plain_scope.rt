// A scope: its passes, its nodes, and its edges and facts made ready for the search.
use model::graph::Node;
use row::row::Row;
use search::flow::Flow;

#[derive(Clone, Copy)]
pub struct PlainScope {
    pub least: u16,
    pub most: u16,
    pub nodes: Row<Node, 32>,
    pub flow: Flow,
}
