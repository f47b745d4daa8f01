//! Laws of slow commands and of what is fetched. Each is the contract of a call that does nothing.

ghost use Rattle.rdm_params.specs.Jobs.Laws.{StaysAccepted, SetKeepsDevices, CommitKeepsDevices, GetStartsItsWork, SetStartsItsWork, GetQueues, GetStatuses, SetFetchesNothing, UsualTakesTheTablesTime, UsualHasTheTablesWorkers, UsualIsAnsweredByTheTable, SensorIsAnsweredAtOnce, PanelKeepsDevices, PlaceKeepsDevices, SetClears, GetClearsNothing};

/// A slow command that is accepted stays so, whatever is set, whatever jobs end, whatever a person changes and whatever
/// the firmware places.
pub fn slow_command_stays_accepted()
    ensures accepted { StaysAccepted }
    ensures set { SetKeepsDevices }
    ensures commit { CommitKeepsDevices }
    ensures panel { PanelKeepsDevices }
    ensures place { PlaceKeepsDevices }
{}

/// The work that a command starts has its sub-device, PID and verb, and is accepted as a slow command.
pub fn started_work_is_its_command()
    ensures get { GetStartsItsWork }
    ensures set { SetStartsItsWork }
{}

/// The slow commands of devices that say nothing of them are those of the table: with the usual estimates their jobs take the
/// table's times, with the usual choice of workers they have the table's workers, and where no sensor is answered at once every
/// command is answered in the way of its row.
pub fn usual_profile_is_as_slow_as_the_table()
    ensures time { UsualTakesTheTablesTime }
    ensures worker { UsualHasTheTablesWorkers }
    ensures way { UsualIsAnsweredByTheTable }
{}

/// A GET of a sensor that is answered at once starts no job: the reply tells what the sensor shows.
pub fn sensor_is_answered_at_once()
    ensures { SensorIsAnsweredAtOnce }
{}

/// QUEUED_MESSAGE and STATUS_MESSAGES are the GETs that fetch what waits for the controller; no SET does.
pub fn two_commands_fetch()
    ensures queue { GetQueues }
    ensures status { GetStatuses }
    ensures set { SetFetchesNothing }
{}

/// A SET of CLEAR_STATUS_ID is the one command that clears status entries.
pub fn one_command_clears()
    ensures set { SetClears }
    ensures get { GetClearsNothing }
{}
