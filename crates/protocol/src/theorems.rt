// What is proved of the definitions. Each function does nothing: its contract states the theorem.
ghost use Rattle.protocol.specs.Given.{CallsGiven};
ghost use Rattle.protocol.specs.Guarantee.{Guarantee};
ghost use Rattle.protocol.specs.Instances.{Instances};
ghost use Rattle.protocol.specs.Met.{Met};
ghost use Rattle.protocol.specs.ReadBack.{RecordsReadBack, RecordsWriteBack, LettersReadBack, SheetsReadBack};

// What the definitions decide on small boards.
pub fn instances_stand()
    ensures { Instances }
{}

// Reading a record that was written gives it back.
pub fn records_read_back()
    ensures { RecordsReadBack }
{}

// The bytes of a record are the only bytes that say it.
pub fn records_write_back()
    ensures { RecordsWriteBack }
{}

// Reading a letter that was written gives it back.
pub fn letters_read_back()
    ensures { LettersReadBack }
{}

// Reading a sheet that was written, among others, gives it back.
pub fn sheets_read_back()
    ensures { SheetsReadBack }
{}

// The guarantee: what holds after every list of calls, in every group.
pub fn guarantee_holds()
    ensures { Guarantee }
{}

// A history meets its hypotheses, with a dealer that lies; and both answers of recovery occur.
pub fn guarantee_is_met()
    ensures { Met }
{}

// A seated custodian's calls give it the record that it owes and its sheet, wherever they fit.
pub fn calls_given()
    ensures { CallsGiven }
{}
