//! What all readers of SUIT manifests share: refusals and their places, digests, and parameters.
#![tactic(auto)]

mod alike;
mod boxed_digest;
mod digest;
mod digest_kind;
mod digest_writing;
mod fault;
mod hashed_digest;
mod hasher;
mod identifier;
mod law;
mod param;
mod param_judging;
mod param_list;
mod param_map;
mod param_slice;
mod param_value;
mod param_writing;
mod params;
mod reading;
mod refusal;
mod value_in_force;

pub use alike::{Identified, IdentifiedList, first_alike, first_like};
pub use boxed_digest::BoxedDigest;
pub use digest::{Digest, digest_of, read_digest};
pub use digest_kind::{DigestKind, kind_of_length};
pub use digest_writing::push_digest;
pub use hashed_digest::HashedDigest;
pub use hasher::{Hasher, hash};
pub use identifier::{Identifier, Identifiers};
pub use law::in_force_laws;
pub use param::{Param, ParamKey};
pub use param_judging::judge_params;
pub use param_list::ParamList;
pub use param_map::{param_laws, params_of, read_params};
pub use param_slice::{ParamSlice, lend_param};
pub use param_value::component_index;
pub use param_writing::write_params;
pub use params::{Params, rank};
pub use reading::{
    bytes_left, copy_left, next_content, only_item, read_array, read_bytes, read_content,
    read_head, read_item, read_kind, read_map, same_place,
};
pub use refusal::{Fault, Refusal, Why, refused};
pub use value_in_force::{identifier_of, number_of};
