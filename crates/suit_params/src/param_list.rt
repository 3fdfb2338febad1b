//! Lists of parameters.

use crate::Param;
use det_cbor::List;

/// The parameters of a map, in ascending order of the numbers of their keys.
pub type ParamList = List<Param>;
