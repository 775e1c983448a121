// What holds of tables and their worlds.
ghost use Rattle.processes.specs.Laws.{SameOfTables, BlindToMemory, BlindToOthers, HandlesLead};

// Tables are those of a world whatever its memories, files, pipes, keys and screens hold; and what a handle of a running process leads to is in use.
pub fn tables_stand()
    ensures rows { SameOfTables }
    ensures memory { BlindToMemory }
    ensures others { BlindToOthers }
    ensures handles { HandlesLead }
{}
