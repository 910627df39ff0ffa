// A way through a scope: the numbers of its edges in their order.
use row::row::Row;

pub type Way = Row<u8, 32>;
