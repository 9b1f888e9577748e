//! Laws of the definitions, each as the contract of a call that does nothing.

ghost use Rattle.rom_gen.specs.Laws.{DevicesRestored, ItemSteps, ItemsJoin, RegistersRestored, RomsRestore};

/// The steps of a hart at a spelling of an item do what the item does.
pub fn item_steps()
    ensures { ItemSteps }
{}

/// The steps of a list of items do what they do, one after another.
pub fn items_join()
    ensures { ItemsJoin }
{}

/// The items of a hart's control and status registers put them back.
pub fn registers_restored()
    ensures { RegistersRestored }
{}

/// The items of the devices put them back, and send nothing.
pub fn devices_restored()
    ensures { DevicesRestored }
{}

/// Every well-formed running machine is restored by the ROM of its devices and harts.
pub fn roms_restore()
    ensures { RomsRestore }
{}
