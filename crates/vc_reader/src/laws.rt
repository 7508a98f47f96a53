//! Laws of the plans that network files mean. A law is a function that does nothing, whose contract is the law.
ghost use Rattle.std.specs.Prelude.{◌≡◌, [], true, false, Some, Ok, Err};
ghost use Rattle.std.specs.List.{list_all};
ghost use Rattle.serde_json.specs.Data.{Data, number, unsigned};
ghost use Rattle.serde_json.specs.Find.{get};
ghost use Rattle.vc_plan.specs.declared.limit_word.LimitWord.{LimitWord};
ghost use Rattle.vc_plan.specs.declared.plan.Plan.{Plan};
ghost use Rattle.vc_plan.specs.Limits.{limit_broken, switch_in_version_one};
ghost use Rattle.vc_reader.specs.Faulty.{LeadsToFault};
ghost use Rattle.vc_reader.specs.declared.fault.Fault.{Fault as FaultData};
ghost use Rattle.vc_reader.specs.declared.word.Word.TheVariants.{Version};
ghost use Rattle.vc_reader.specs.Laws.{HasDistinctNames, refuses_no_file};
ghost use Rattle.vc_reader.specs.NetworkText.{read_plan};
ghost use Rattle.vc_reader.specs.Words.{word_text};

/// In the plan of a network file no name is given twice: the nodes and switches have names of their own, and so have the virtual links,
/// the channels, and the variables of each node.
pub fn names_differ()
    ensures { (d : Data) (p : Plan) → read_plan d ≡ Ok p → HasDistinctNames p }
{}

/// A network file of version 1 means a network whose switches have no random input and no portal.
pub fn version_one_has_no_portals()
    ensures { (d : Data) (p : Plan) →
        get (word_text Version) d ≡ Some (number (unsigned 1)) → read_plan d ≡ Ok p →
        list_all switch_in_version_one p.switches ≡ true }
{}

/// Where the plan of a network file breaks limits, the first of them is none of its version, its messages, its numbers and its names. So
/// `check` refuses no network file by one of these four.
pub fn four_limits_refuse_no_file()
    ensures { (d : Data) (p : Plan) (limit : LimitWord) →
        read_plan d ≡ Ok p → limit_broken p ≡ Some limit → refuses_no_file limit ≡ false }
{}

/// The path of a refusal leads, in the file's value, to what is wrong. Where a field is missing it leads to an object that lacks that
/// field. Where something is out of its range, it leads to a whole number outside the range that the format gives that place, or to a
/// text of more than 65,535 bytes. Where something is unknown, it leads to a text, or to an object with a field that the format does
/// not have there.
pub fn faults_are_where_paths_lead()
    ensures { (d : Data) (fault : FaultData) →
        read_plan d ≡ Err fault → LeadsToFault [] fault.path fault.why d }
{}
