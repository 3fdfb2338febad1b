//! Descriptions of envelopes in JSON, and the envelopes that are made from them.
#![tactic(auto)]

mod algorithm_name;
mod bare;
mod command_name;
mod commands;
mod contents;
mod describing;
mod digest_value;
mod elements;
mod fault;
mod fields;
mod file_list;
mod file_names;
mod file_value;
mod held;
mod identifiers;
mod index_argument;
mod law;
mod mac_name;
mod made_envelope;
mod made_wrapper;
mod make_fault;
mod making;
mod member_fields;
mod outline;
mod overlong;
mod param_fields;
mod param_name;
mod parts;
mod payload_fields;
mod scope;
mod severing;
mod short_envelope;

pub use describing::description;
pub use fault::DescriptionFault;
pub use file_list::{FileList, bytes_of, has_files};
pub use held::Description;
pub use law::description_laws;
pub use made_envelope::make;
pub use make_fault::MakeFault;
pub use making::manifest_of;
pub use member_fields::is_one_item;
pub use severing::{MemberKinds, Severed};
