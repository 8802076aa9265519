//! The laws of flow files.

ghost use Rattle.std.specs.Prelude.{◌≡◌, ℕ, List};
ghost use Rattle.pw_files.specs.Contents.{value_of};
ghost use Rattle.pw_files.specs.Faults.{FaultsStay};
ghost use Rattle.pw_flow.specs.declared.flow.FlowModule.{FlowModule};
ghost use Rattle.pw_flowfile.specs.FlowFile.{IsFlowFile, kind_of_file, flow_version};
ghost use Rattle.pw_flowfile.specs.Reading.{fields_at, flow_file_at};

use crate::reading::{KIND, VERSION};

/// The kind and the version of the file are those that its definition speaks of.
pub fn version_of_flow_files()
    ensures kind { KIND ≡ kind_of_file }
    ensures version { VERSION ≡ flow_version }
{}

/// No bytes are the file of two flow graphs, and no flow graph has two files.
pub fn flow_graphs_and_files_are_one_to_one()
    ensures one_module { (bytes : List ℕ) (m n : FlowModule) → IsFlowFile bytes m → IsFlowFile bytes n → m ≡ n }
    ensures one_file { (bytes others : List ℕ) (m : FlowModule) → IsFlowFile bytes m → IsFlowFile others m → bytes ≡ others }
{}

/// A fault lies within the bytes, and one of the fields rests on the bytes up to the faulty field's end.
pub fn faults_stay()
    ensures { FaultsStay kind_of_file flow_version flow_version (λ version. fields_at) (λ bytes. value_of (flow_file_at bytes)) }
{}
