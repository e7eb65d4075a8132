// Nodes of expressions in the work area.
pub use parser::nodes::{
    ListNode, Operator, Prefix, TermNode, is_place, is_plain, list, put_list, put_term, term,
};
