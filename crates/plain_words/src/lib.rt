//! Definitions of net_model and config_load that compute, said in plainer words, as contracts of functions without a body.
//!
//! A reader may take the plain form in place of the one that computes: the sets of learnt addresses are the least and the
//! greatest set that learning leaves as it is (`learnt_sets`); lists in order are equal exactly if they have the same
//! items (`items_in_order`, `equal_sets`), so differing answers are answers with different data (`answers_differ`); octets
//! are tried in the order of a text (`octets_tried`); what redirects a name has a target (`redirections_have_targets`); and
//! the files of a zone are those for which its texts ask (`enough_files`).
#![tactic(auto)]

mod laws;

pub use laws::{
    answers_differ, enough_files, equal_sets, items_in_order, learnt_sets, octets_tried,
    redirections_have_targets,
};
